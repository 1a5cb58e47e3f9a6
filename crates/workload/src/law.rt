// Laws of the definition: what holds of each made script.
ghost use Rattle.std.specs.Prelude.{◌≡◌, ◌≤◌, ℕ};
ghost use Rattle.std.specs.List.{flat_map};
ghost use Rattle.nvm_model.specs.World.{acts_of};
ghost use Rattle.workload.specs.Apart.{AreApart, numbers_to, submitted_cid};
ghost use Rattle.workload.specs.Made.{made};

/// A law: no two lanes of a made script are on one block, so what a read gives doesn't go by the order of the lanes.
pub fn lanes_are_apart()
    ensures { (seed : ℕ) → AreApart (made seed).acts }
{}

/// A law: each of the four lanes submits 750 commands, numbered from 1 in the script's order.
pub fn each_has_750_commands()
    ensures { (seed k : ℕ) → 1 ≤ k → k ≤ 4 → flat_map submitted_cid (acts_of k (made seed).acts) ≡ numbers_to 750 }
{}
