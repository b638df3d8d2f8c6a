//! Nodes that go from one list to another and take no memory there.
ghost use Rattle.std.specs.Prelude.{◌≡◌, ◌+◌, ◌<◌, ◌^◌, [], ◌∷◌, ◌++◌, length, None, IfNone, IfOk, IfSome};
ghost use Rattle.demi_memq.specs.Chains.{AllFree, AllEmpty};

use demi_core::NoMemory;
use std::alloc::Global;
use std::collections::LinkedList;
use std::mem::{replace, swap};

/// A list of nodes, of which each has an item or none.
pub(crate) type Nodes<T> = LinkedList<Option<T>>;

// Ends what has no item.
pub(crate) fn end_item<T>(item: Option<T>)
    requires { item ≡ None }
{
    match item {
        None => {}
        Some(_) => unreachable!(),
    }
}

// Ends nodes that have no item.
pub(crate) fn end_nodes<T>(mut nodes: Nodes<T>)
    requires { AllFree nodes }
{
    while let Some(item) = nodes.pop_front() {
        end_item(item);
    }
    nodes.destroy_empty();
}

// So many nodes that have no item.
pub(crate) fn make_nodes<T>(alloc: Global, count: usize) -> Result<Nodes<T>, NoMemory>
    ensures count { IfOk result (λ nodes. length nodes ≡ count) }
    ensures free { IfOk result (λ nodes. AllFree nodes) }
{
    let mut nodes = LinkedList::new(alloc);
    for _ in 0..count {
        if let Err(refused) = nodes.push_back(None) {
            end_item(refused.value);
            end_nodes(nodes);
            return Err(NoMemory);
        }
    }
    Ok(nodes)
}

// Ends lists that have no nodes.
pub(crate) fn end_lists<T>(mut lists: Vec<Nodes<T>>)
    requires { AllEmpty lists.items }
{
    while let Some(list) = lists.pop() {
        list.destroy_empty();
    }
    lists.destroy_empty();
}

// So many lists that have no nodes.
pub(crate) fn make_lists<T>(alloc: Global, count: usize) -> Result<Vec<Nodes<T>>, NoMemory>
    ensures count { IfOk result (λ lists. length lists.items ≡ count) }
    ensures empty { IfOk result (λ lists. AllEmpty lists.items) }
{
    let mut lists = Vec::with_capacity(alloc, count)?;
    for _ in 0..count {
        lists.push_reserved(LinkedList::new(alloc));
    }
    Ok(lists)
}

// Takes out the first node with what it has.
pub(crate) fn cut_first<T>(nodes: &mut Nodes<T>) -> Option<Nodes<T>>
    ensures none { IfNone result ((nodes.old ≡ []) × (nodes.new ≡ [])) }
    ensures one { IfSome result (λ node. length node ≡ 1) }
    ensures first { IfSome result (λ node. nodes.old ≡ node ++ nodes.new) }
{
    if nodes.is_empty() {
        return None;
    }
    let Ok(rest) = nodes.split_off(1) else {
        unreachable!()
    };
    Some(replace(nodes, rest))
}

// Puts this into the one node, in place of what it had.
pub(crate) fn exchange<T>(node: &mut Nodes<T>, item: Option<T>) -> Option<T>
    requires { length node.old ≡ 1 }
    ensures old { node.old ≡ result ∷ [] }
    ensures new { node.new ≡ item ∷ [] }
{
    replace(node.front_mut().unwrap(), item)
}

// Puts these nodes behind the others.
pub(crate) fn put_last<T>(nodes: &mut Nodes<T>, mut more: Nodes<T>)
    requires { length nodes.old + length more < 2 ^ 63 }
    ensures { nodes.new ≡ nodes.old ++ more }
{
    let Ok(()) = nodes.append(&mut more) else {
        unreachable!()
    };
    more.destroy_empty();
}

// Puts these nodes before the others.
pub(crate) fn put_first<T>(nodes: &mut Nodes<T>, mut more: Nodes<T>)
    requires { length nodes.old + length more < 2 ^ 63 }
    ensures { nodes.new ≡ more ++ nodes.old }
{
    swap(nodes, &mut more);
    put_last(nodes, more);
}
