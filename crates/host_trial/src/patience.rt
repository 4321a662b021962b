// How long a trial goes on. It relies on `trial_disks` for what its file says.

use trial_disks::Disks;

/// How many moments a request may take, if the file does not say how long a trial goes on.
const MOMENTS: u64 = 20;

/// How many there may be beside.
const BESIDE: u64 = 1000;

/// After how many moments a trial of so many devices is stopped.
pub(crate) fn most_moments(disks: &Disks, devices: usize) -> u64 {
    if disks.limit > 0 {
        return disks.limit;
    }
    disks
        .requests
        .saturating_mul(devices as u64)
        .saturating_mul(MOMENTS)
        .saturating_add(BESIDE)
}
