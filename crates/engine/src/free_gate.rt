use mig_base::Gate;

/// A gate that holds nobody back.
#[derive(Clone, Copy, Debug)]
pub struct FreeGate;

impl Gate for FreeGate {
    fn before(&self, _lane: u8, _k: u32) {}

    fn after(&self, _lane: u8, _k: u32) {}
}
