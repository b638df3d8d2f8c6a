//! Links and the seats of their ports, while devices have them and while not.
ghost use Rattle.std.specs.Prelude.{◌≡◌, ◌+◌, ◌<◌, ◌≤◌, [], ◌∷◌, ◌++◌, All, IfErr, IfNone, IfOk, IfSome, length, map, reverse};
ghost use Rattle.demi_server.specs.Building.{AreSeated, HasLost, HasMore, HasRoom, IsAsRoomy, IsEmptyHome, IsEven, IsLinkNew, IsLinkSpent, IsSameHome, ends_of, rx_of, tx_of};

use crate::linking::{LinkStations, link_parts, link_stations};
use crate::parts::{LinkParts, RxSeat, TxSeat};
use demi_core::{NoMemory, Sink, Source};
use demi_pdpix::Demi;
use demi_store::StoreLaw;
use std::alloc::Global;

/// Links and the seats of their ports, by place. What devices have is not here, but its room stays.
pub(crate) struct Home<I, O> {
    pub(crate) links: Vec<(I, O)>,
    pub(crate) rx: Vec<RxSeat>,
    pub(crate) tx: Vec<TxSeat>,
}

impl<I: Source, O: Sink> Home<I, O> {
    // The last link, with its seats.
    fn take(&mut self) -> Option<LinkParts<I, O>>
        requires { IsEven self.old }
        ensures some { IfSome result (HasLost self.old self.new) }
        ensures none { IfNone result (IsSameHome self.old self.new × IsEmptyHome self.new) }
        ensures even { IsEven self.new }
        ensures room { IsAsRoomy self.old self.new }
    {
        match self.links.pop() {
            None => None,
            Some((input, output)) => {
                let Some(rx) = self.rx.pop() else {
                    unreachable!()
                };
                let Some(tx) = self.tx.pop() else {
                    unreachable!()
                };
                Some(LinkParts {
                    input,
                    output,
                    rx,
                    tx,
                })
            }
        }
    }

    // A link comes home, behind the others.
    fn give(&mut self, parts: LinkParts<I, O>)
        requires even { IsEven self.old }
        requires room { HasRoom (length self.old.links.items + 1) self.old }
        ensures home { HasLost self.new self.old parts }
        ensures even { IsEven self.new }
        ensures room { IsAsRoomy self.old self.new }
    {
        let LinkParts {
            input,
            output,
            rx,
            tx,
        } = parts;
        self.links.push_reserved((input, output));
        self.rx.push_reserved(rx);
        self.tx.push_reserved(tx);
    }

    /// What devices are made of comes home behind what is there, the last device's first.
    pub(crate) fn give_all(&mut self, mut devices: Vec<LinkStations<I, O>>)
        requires even { IsEven self.old }
        requires spent { All IsLinkSpent devices.items }
        requires room { HasRoom (length self.old.links.items + length devices.items) self.old }
        ensures home { HasMore self.old self.new (reverse devices.entry.items) }
        ensures even { IsEven self.new }
        ensures room { IsAsRoomy self.old self.new }
    {
        while let Some(stations) = devices.pop() {
            self.give(link_parts(stations));
        }
        devices.destroy_empty();
    }

    /// A pair of devices for each link, by place. Where memory is refused, and for no other cause, all are home again.
    pub(crate) fn stations<'h>(
        &mut self,
        alloc: Global,
        demi: &'h Demi<StoreLaw>,
    ) -> Result<Vec<LinkStations<'h, I, O>>, NoMemory>
        requires even { IsEven self.old }
        requires few { (length self.old.links.items ≤ length demi.now.rx) × (length self.old.links.items ≤ length demi.now.tx) × (length demi.now.rx ≤ 16) }
        requires seated { AreSeated demi.now.heap demi.now.rx 64 self.old.rx.items × AreSeated demi.now.heap demi.now.tx 64 self.old.tx.items }
        ensures made { IfOk result (λ d. (map ends_of d.items ≡ self.old.links.items) × (map rx_of d.items ≡ self.old.rx.items) × (map tx_of d.items ≡ self.old.tx.items)) }
        ensures new { IfOk result (λ d. All IsLinkNew d.items × IsEmptyHome self.new) }
        ensures back { IfErr result (λ _. IsSameHome self.old self.new) }
        ensures even { IsEven self.new }
        ensures room { IsAsRoomy self.old self.new }
    {
        let mut made = Vec::with_capacity(alloc, self.links.len())?;
        while let Some(parts) = self.take() {
            let k = self.links.len() as u32;
            match link_stations(alloc, demi.heap(), demi.rx(k), demi.tx(k), parts) {
                Ok(stations) => made.push_reserved(stations),
                Err(parts) => {
                    self.give(parts);
                    self.give_all(made);
                    return Err(NoMemory);
                }
            }
        }
        made.reverse();
        Ok(made)
    }
}
