mod sealed {
    /// What only the stages here can be.
    pub trait Sealed {}
}

/// A stage of a run. There are two.
pub trait Stage: Copy + sealed::Sealed {}

/// The stage of a run that still makes verdicts. It steps.
#[derive(Clone, Copy)]
pub struct Comparing {}

impl sealed::Sealed for Comparing {}

impl Stage for Comparing {}

/// The stage of a run that has made all its verdicts. It finishes.
#[derive(Clone, Copy)]
pub struct Closing {}

impl sealed::Sealed for Closing {}

impl Stage for Closing {}
