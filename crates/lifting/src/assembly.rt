ghost use Rattle.std.specs.Prelude.{◌≡◌, reverse, IfOk};
ghost use Rattle.lifting.specs.Assembled.{assembled};

use hy_terms::Memory;
use lifted_functions::LiftedText;
use lifted_syntax::LiftedFunction;
use sqlite_items::Items;
use std::alloc::Global;

// Items, the last one first.
fn reversed<T: Drop>(alloc: Global, mut items: Items<T>) -> Result<Items<T>, Memory>
    ensures { IfOk result (λ left. left ≡ reverse items) }
{
    let mut left = Items::new(alloc);
    while let Some(item) = items.pop() {
        left.push(item)?;
    }
    Ok(left)
}

/// Functions of these origins, texts and nodes: as many as each of the three lists has.
pub fn assembled_functions(
    alloc: Global,
    origins: &[u32],
    texts: Items<LiftedText>,
    nodes: Vec<Items<u32>>,
) -> Result<Items<LiftedFunction>, Memory>
    ensures { IfOk result (λ functions. functions
        ≡ assembled origins.now texts nodes.items) }
{
    let mut texts_left = reversed(alloc, texts)?;
    let mut nodes_left = reversed(alloc, Items::from_vec(nodes))?;
    let mut functions = Items::new(alloc);
    for origin in origins {
        let Some(LiftedText { params, body }) = texts_left.pop() else {
            return Ok(functions);
        };
        let Some(nodes) = nodes_left.pop() else {
            return Ok(functions);
        };
        functions.push(LiftedFunction {
            origin: *origin,
            params,
            body,
            nodes,
        })?;
    }
    Ok(functions)
}
