//! What is dropped.
ghost use Rattle.std.specs.Prelude.{◌≡◌, ◌++◌, ◌∷◌, [], OnOk};
ghost use Rattle.edge_model.specs.declared.effect.Effect.TheVariants.{Dropped};

use edge_model::Effect;
use net_base::{DropCause, List, NoMemory};

/// A frame or a packet is dropped.
pub fn drop_for(cause: DropCause, out: &mut List<Effect>) -> Result<(), NoMemory>
    ensures { OnOk result (out.new ≡ out.old ++ Dropped cause ∷ []) }
{
    out.push(Effect::Dropped(cause))
}
