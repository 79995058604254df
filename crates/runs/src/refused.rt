use faults::fault::RunFault;

/// A call that was refused, with what it was given, as it was.
#[derive(Drop)]
pub struct Refused<G> {
    pub fault: RunFault,
    pub given: G,
}
