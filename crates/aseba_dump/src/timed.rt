use aseba_message::Frame;

/// A frame and when it came.
#[derive(Debug, Drop)]
pub struct Timed {
    /// In milliseconds, from a beginning that is the same for all frames beside it.
    pub time: u64,
    pub frame: Frame,
}
