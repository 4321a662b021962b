// The registers and their numbers (RFC 9669, section 3.1).

ghost use Rattle.std.specs.Prelude.{◌≡◌, ◌≤◌, ◌<◌, ◌↔◌, IsNone, IfSome};
ghost use Rattle.bpf_insn.specs.Reg.{number_of};

/// A register of 64 bits. By BPF's calling convention R0 holds results, R1 to R5 arguments, R6 to R9
/// are kept over calls, and R10 is the frame pointer, which is only read.
#[derive(Clone, Copy, Debug, PartialEq, Eq)]
pub enum Reg {
    R0,
    R1,
    R2,
    R3,
    R4,
    R5,
    R6,
    R7,
    R8,
    R9,
    R10,
}

impl Reg {
    /// The register of a number from 0 to 10, and None exactly for a greater number.
    pub fn from_number(number: u8) -> Option<Self>
        ensures found { IfSome result (λ reg. number_of reg ≡ number) }
        ensures none { IsNone result ↔ (10 < number) }
    {
        Some(match number {
            0 => Reg::R0,
            1 => Reg::R1,
            2 => Reg::R2,
            3 => Reg::R3,
            4 => Reg::R4,
            5 => Reg::R5,
            6 => Reg::R6,
            7 => Reg::R7,
            8 => Reg::R8,
            9 => Reg::R9,
            10 => Reg::R10,
            _ => return None,
        })
    }

    /// The register's number, from 0 to 10.
    pub fn number(self) -> u8
        ensures value { result ≡ number_of self }
        ensures in_range { result ≤ 10 }
    {
        self as u8
    }
}
