/// When something happens in a run: after so many ticks, and with so many effects.
#[derive(Clone, Copy, Debug)]
pub struct Moment {
    pub ticks: u64,
    pub effects: u64,
}
