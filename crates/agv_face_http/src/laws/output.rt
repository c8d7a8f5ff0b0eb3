//! Laws of the output of an input.
ghost use Rattle.std.specs.Prelude.{◌≡◌, ℕ, List};
ghost use Rattle.agv_world_core.specs.Worlds.{World};
ghost use Rattle.agv_face_http.specs.Output.{IsOutput};

use crate::laws::requests::{has_a_cut, is_cut_one_way};

/// Proves that an input has one output and leaves one world.
pub fn writes_one_output()
    ensures { (seats : ℕ) (world : World) (at : ℕ) (input out other : List ℕ) (left remains : World)
        → IsOutput seats world at input out left → IsOutput seats world at input other remains → (out ≡ other) × (left ≡ remains) }
{
    is_cut_one_way();
}

/// Proves that each input that fits in memory has an output, in every world and at every moment.
pub fn has_an_output(input: &[u8])
    ensures { (seats : ℕ) (world : World) (at : ℕ) → (out : List ℕ) × (left : World) × IsOutput seats world at input.now out left }
{
    has_a_cut(input);
}
