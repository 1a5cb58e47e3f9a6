/// Lets a test hold back a worker. No contract sees what its calls do.
pub trait Gate: Sync {
    /// Called by a lane's worker before its `k`-th piece of a parallel part, from 1.
    fn before(&self, lane: u8, k: u32);

    /// Called by a lane's worker after its `k`-th piece of a parallel part was released, from 1.
    fn after(&self, lane: u8, k: u32);
}
