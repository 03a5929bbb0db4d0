// What a block says of the way on: in a list, or in the free chain. Damage is all that a sound table has not.
ghost use Rattle.std.specs.Prelude.{◌≡◌, ◌<◌, ℕ, List};
ghost use Rattle.settings.specs.declared.layout.Layout.{Layout};
ghost use Rattle.table.specs.declared.step.Step.{Step};
ghost use Rattle.table.specs.State.{Overflow};
ghost use Rattle.table.specs.Decode.{decode};
ghost use Rattle.table.specs.Table.{Table};
ghost use Rattle.table_check.specs.Walk.{list_step, chain_step};

use crate::bytes::zeros_after;
use keys::{BlockNumber, ListNumber};
use settings::Layout;
use table::Step;
use table_read::blocks::{owned_front, step_of};
use table_read::places::overflow_slots;

// A way along blocks: each says where it goes on.
pub(crate) trait Way: Copy {
    ghost step: { Self → Layout → List Overflow → ℕ → Step };

    fn step(self, t: &[u8], g: Layout, b: BlockNumber) -> Step
        requires { Table g t.now × (b.0 < g.nob) }
        ensures { result ≡ step self g (decode g t.now).overflow b.0 };
}

// The blocks of a list.
#[derive(Clone, Copy)]
pub(crate) struct InList(pub ListNumber);

impl Way for InList {
    ghost step = { λ way g os b. list_step g os way.0.0 b };

    fn step(self, t: &[u8], g: Layout, b: BlockNumber) -> Step {
        let fields = owned_front(t, g, b);
        if fields.owner != self.0 {
            return Step::Damage;
        }
        let used = fields.front.counter + 1;
        let way = step_of(fields.front, g.sio);
        let Step::Last = way else {
            return way;
        };
        if zeros_after(t, overflow_slots(g, b), g.slot, used, g.sio) {
            return Step::Last;
        }
        Step::Damage
    }
}

// The free blocks.
#[derive(Clone, Copy)]
pub(crate) struct InChain;

impl Way for InChain {
    ghost step = { λ _ g os b. chain_step g os b };

    fn step(self, t: &[u8], g: Layout, b: BlockNumber) -> Step {
        let fields = owned_front(t, g, b);
        if fields.front.counter != 0 {
            return Step::Damage;
        }
        if fields.owner.0 != 0 {
            return Step::Damage;
        }
        if !zeros_after(t, overflow_slots(g, b), g.slot, 0, g.sio) {
            return Step::Damage;
        }
        let next = fields.front.link;
        if next == b.0 {
            return Step::Last;
        }
        Step::Further(BlockNumber(next))
    }
}
