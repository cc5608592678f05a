/// A fault of a device. The device's count of faults tells faults apart from answers.
#[derive(Clone, Copy, Debug, PartialEq, Eq)]
pub struct Failed;
