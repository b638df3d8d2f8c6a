//! What waits in queues, in chains of nodes of one pool.
ghost use Rattle.std.specs.Prelude.{◌≡◌, ℕ, ◌+◌, ◌<◌, ◌≤◌, ◌++◌, [], ◌∷◌, length, IfNone, IfOk, IfSome, ltb};
ghost use Rattle.demi_memq.specs.Counting.{beside};
ghost use Rattle.demi_memq.specs.Rooms.{rest};

use crate::nodes::{
    Nodes, cut_first, end_item, end_lists, end_nodes, exchange, make_lists, make_nodes, put_first,
    put_last,
};
use demi_core::NoMemory;
use demi_device::Mark;
use std::alloc::Global;
use std::collections::LinkedList;
use std::marker::Model;

// What waits, each beside its queue, in the order in which it came. For contracts alone.
type Order<T> = Mark<LinkedList<(u32, T)>>;

/// Items that wait in queues, at most so many over all queues. Only making takes memory: an item lies in a node of the pool, which
/// goes to its queue's chain and back. A push and a pop take the same time whatever waits.
pub(crate) struct Chains<T> {
    order: Order<T>,
    chains: Vec<Nodes<T>>,
    free: Nodes<T>,
}

impl<T> Model for Chains<T> {
    ghost use Rattle.std.specs.Prelude.{◌+◌, ◌<◌, ◌^◌, length};
    ghost use Rattle.demi_memq.specs.Chains.{ChainsValue, AllFree, ChainsHold};

    ghost Value = { ChainsValue T };

    ghost view = { λ c. record { items = c.order.value; queues = length c.chains.items; room = length c.order.value + length c.free } };

    ghost invariant = { λ c. ChainsHold c.order.value c.chains.items × AllFree c.free × (length c.order.value + length c.free < 2 ^ 32) × (length c.chains.items < 2 ^ 32) };
}

fn none_came<T>() -> Order<T>
    ensures { result.value ≡ [] }
{
    Mark::from(&(), &())
}

fn came<T>(order: &Order<T>, q: &u32, item: &T) -> Order<T>
    ensures { result.value ≡ order.now.value ++ (q.now, item.now) ∷ [] }
{
    Mark::from(order, &(q, item))
}

fn went<T>(order: &Order<T>, q: &u32) -> Order<T>
    ensures { result.value ≡ rest q.now order.now.value }
{
    Mark::from(order, q)
}

impl<T> Chains<T> {
    // For so many queues, with room for so many items.
    pub(crate) fn make(alloc: Global, queues: u32, room: u32) -> Result<Chains<T>, NoMemory>
        ensures { IfOk result (λ c. c ≡ record { items = []; queues = queues; room = room }) }
    {
        let chains = make_lists(alloc, queues as usize)?;
        match make_nodes(alloc, room as usize) {
            Ok(free) => Ok(Chains {
                order: none_came(),
                chains,
                free,
            }),
            Err(refused) => {
                end_lists(chains);
                Err(refused)
            }
        }
    }

    // How many queues there are. Nothing waits in another.
    pub(crate) fn queues(&self) -> u32
        ensures value { result ≡ self.now.queues }
        ensures others { (q : ℕ) → self.now.queues ≤ q → beside q self.now.items ≡ [] }
    {
        self.chains.len() as u32
    }

    // Whether one more item finds room.
    pub(crate) fn has_room(&self) -> bool
        ensures { result ≡ ltb (length self.now.items) self.now.room }
    {
        !self.free.is_empty()
    }

    // The item is the last of its queue.
    pub(crate) fn push(&mut self, q: u32, item: T)
        requires queue { q < self.old.queues }
        requires room { length self.old.items < self.old.room }
        ensures items { self.new.items ≡ self.old.items ++ (q, item) ∷ [] }
        ensures room { (self.new.queues ≡ self.old.queues) × (self.new.room ≡ self.old.room) }
    {
        let order = came(&self.order, &q, &item);
        let Some(mut node) = cut_first(&mut self.free) else {
            unreachable!()
        };
        end_item(exchange(&mut node, Some(item)));
        put_last(&mut self.chains[q as usize], node);
        self.order = order;
    }

    // The first item of the queue.
    pub(crate) fn pop(&mut self, q: u32) -> Option<T>
        requires { q < self.old.queues }
        ensures none { IfNone result (beside q self.old.items ≡ []) }
        ensures same { IfNone result (self.new ≡ self.old) }
        ensures first { IfSome result (λ x. beside q self.old.items ≡ x ∷ beside q self.new.items) }
        ensures rest { IfSome result (λ _. self.new.items ≡ rest q self.old.items) }
        ensures less { IfSome result (λ _. length self.new.items + 1 ≡ length self.old.items) }
        ensures room { (self.new.queues ≡ self.old.queues) × (self.new.room ≡ self.old.room) }
    {
        let mut node = cut_first(&mut self.chains[q as usize])?;
        let item = exchange(&mut node, None);
        put_first(&mut self.free, node);
        self.order = went(&self.order, &q);
        item
    }

    // Gives the memory back. No item waits.
    pub(crate) fn end(self)
        requires { self.items ≡ [] }
    {
        let Chains {
            order: _,
            chains,
            free,
        } = self;
        end_lists(chains);
        end_nodes(free);
    }
}
