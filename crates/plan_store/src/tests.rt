use super::*;
use plan_nodes::{Node, NodeKind};
use row_table::Mark;
use scalar_value::Seq;
use std::test::Fail;

#[test]
fn lists_begin_with_a_run(rt: HostRuntime) -> Result<(), Fail> {
    let alloc = rt.alloc();
    let node = Node {
        kind: NodeKind::Sink,
        inputs: Seq::of_slice(alloc, &[1])?,
        mark: Mark::Kept,
        schema: Seq::new(alloc),
    };
    let nodes = [node];
    assert_eq!(rt; infos_of(alloc, &nodes)?.len(), 1);
    assert_eq!(rt; stages_of(alloc, &nodes, &Seq::new(alloc), 2)?.len(), 1);
    assert_eq!(rt; queues_of(alloc, 3, 2)?.len(), 3);
    assert_eq!(rt; seats_of(alloc, 2)?.len(), 2);
    Ok(())
}
