/// How the call of a native ended.
#[derive(Clone, Copy, Debug, PartialEq, Eq)]
pub enum NativeEnd {
    /// All cells are stored.
    Done,
    /// There is no such native, or the arguments don't fit it: nothing has changed.
    BadCall,
    /// A divisor was 0: the cells before it are stored.
    Division,
}
