// Where a jump leads.

ghost use Rattle.std.specs.Prelude.{◌≡◌, ◌<◌};
ghost use Rattle.bpf_insn.specs.declared.program.TheConstants.{MAX_SLOTS};
ghost use Rattle.bpf_insn.specs.Target.{target};

/// The slot that the jump or the local call at a place leads to: its distance counts from the next slot (RFC 9669,
/// section 4.3). What would be below 0 wraps to a number above every program.
pub fn jump_target(place: usize, distance: i32) -> usize
    requires { place < MAX_SLOTS }
    ensures { result ≡ target place distance }
{
    (place + 1).wrapping_add_signed(distance as isize)
}
