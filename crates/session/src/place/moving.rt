// A place as a side of a move.
ghost use Rattle.std.specs.Prelude.{◌≡◌, ◌<◌, [], ◌∷◌, IfSome, length};
ghost use Rattle.ctl_state.specs.Controller.{TakesChange};
ghost use Rattle.data_queue.specs.Change.{IsChange};
ghost use Rattle.nvm_model.specs.Medium.{got};
ghost use Rattle.nvm_model.specs.Memory.{page_at};
ghost use Rattle.guest_ram.specs.Ram.{all_pages};
ghost use Rattle.nvm_blocks.specs.Namespace.{HasCalled, block_call, block_count};

use super::Place;
use crate::dest::Dest;
use manager::{AdminCmd, AdminCpl, Change};
use mig_base::Failed;
use mig_medium::Medium;

impl<M: Medium> Place<M> {
    /// Reads block `b`, which is there, into `out`.
    ///
    /// # Errors
    ///
    /// `Failed` only where a count of faults rose. What `out` holds then isn't known.
    pub(crate) fn read(&mut self, b: u32, out: &mut [u8; 512]) -> Result<(), Failed>
        requires { b < block_count self.old.namespace }
        ensures called { HasCalled M.state M.moves self.old.namespace
            (block_call self.old.namespace b (λ place. got place out.new result) ∷ []) self.new.namespace }
        ensures rest { self.new ≡ record self.old { namespace = self.new.namespace } }
    {
        self.namespace.copy_out(b, out)
    }

    /// Takes the oldest change of its controller's queue that isn't taken: `None` exactly where there is none, or the queue
    /// isn't live.
    pub(crate) fn take_change(&mut self) -> Option<Change>
        ensures change { IfSome result IsChange }
        ensures taken { TakesChange self.old.controller result self.new.controller }
        ensures rest { self.new ≡ record self.old { controller = self.new.controller } }
    {
        self.controller.take_change()
    }

    /// The bytes of a window page, which is there. Numbers count over all lanes.
    pub(crate) fn window_page(&self, page: u32) -> &[u8; 4096]
        requires { page < length (all_pages self.now.windows) }
        ensures { result.now ≡ page_at (all_pages self.now.windows) page }
    {
        self.ram.page(page)
    }
}

impl<M: Medium> Dest for Place<M> {
    ghost use Rattle.session.specs.Place.{PlaceState};
    ghost use Rattle.session.specs.Port.{dest_of_place, moves_place};

    ghost Inside = { PlaceState M };

    ghost state = { dest_of_place M.state };

    ghost moves = { moves_place M.state M.moves };

    fn put(&mut self, b: u32, bytes: &[u8; 512]) -> Result<(), Failed> {
        self.namespace.put(b, bytes)
    }

    fn page(&mut self, page: u32, bytes: &[u8; 4096]) {
        self.ram.put_page(page, bytes);
    }

    fn admin(&mut self, cmd: &AdminCmd, bytes: &mut [u8]) -> AdminCpl {
        self.controller.admin(&cmd.to_bytes(), &mut self.ram, bytes)
    }

    fn mark(&mut self, n: u64) {
        self.namespace.mark(n);
    }
}
