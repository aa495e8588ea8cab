ghost use Rattle.std.specs.Prelude.{◌≡◌, IfOk};

use plan_compile::Tree;
use scalar_value::Mem;
use verb_forms::Shape;

/// What a pipeline is before it runs: its tree of nodes, the shape of its table, and the place of the tree's table among the
/// tables that were handed in.
#[derive(Debug, Drop)]
pub struct Stage {
    pub tree: Tree,
    pub shape: Shape,
    pub source: usize,
}

impl Stage {
    /// An equal stage. The only error is want of memory.
    pub fn copy(&self) -> Mem<Stage>
        ensures { IfOk result (λ stage. stage ≡ self.now) }
    {
        Ok(Stage {
            tree: self.tree.copy()?,
            shape: self.shape.copy()?,
            source: self.source,
        })
    }
}
