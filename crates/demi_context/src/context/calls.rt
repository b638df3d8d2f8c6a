//! The calls of a context for its links.
use super::Context;
use super::notes::{
    asked, claimed, drew, freed, freed_lent, giving, no_slot, no_token, of_link, popped, pushed,
    rx_tried, store_tried, trying, tx_tried, used_up,
};
use super::ports::{ask_at, pop_at, push_at};
use super::tries::{rx_at, store_at, tx_at};
use demi_buf::Class;
use demi_device::Mark;
use demi_heap::{AppBuf, NoSlot};
use demi_link::{Calls, NoToken, Talk};
use demi_port::Redeem;
use demi_port_core::QToken;
use demi_served::an_only_link_is_served_in_order;
use demi_sga::{AppSga, DevSga, LentSga, SgaRefusal};
use demi_store::{StoreLaw, StoreOp};
use demi_streamq::{RxLaw, TxLaw};

/// A call for a link that the whole does not have is refused, and its tokens are unknown.
impl<'h> Calls for Context<'h> {
    ghost use Rattle.demi_context.specs.ContextLaws.{goes_beside};
    ghost use Rattle.demi_context.specs.ContextSights.{sight_of};

    ghost sight = { sight_of };

    ghost events = { λ c. c.ledger.events };

    fn claim(&mut self, link: u16, class: Class) -> Result<AppBuf, NoSlot> {
        let demi = self.demi;
        match demi.claim(&mut self.caller, class) {
            Ok(buf) => {
                self.ledger = claimed(&of_link(&self.ledger, link));
                Ok(buf)
            }
            Err(NoSlot) => {
                self.ledger = no_slot(&self.ledger);
                Err(NoSlot)
            }
        }
    }

    fn sgaalloc(&mut self, link: u16, n: u32) -> Result<AppSga, NoSlot> {
        let demi = self.demi;
        match demi.sgaalloc(&mut self.caller, n) {
            Ok(sga) => {
                self.ledger = claimed(&of_link(&self.ledger, link));
                Ok(sga)
            }
            Err(SgaRefusal::NoSlot) => {
                self.ledger = no_slot(&self.ledger);
                Err(NoSlot)
            }
            Err(SgaRefusal::BadSize) => unreachable!(),
        }
    }

    fn sgafree(&mut self, link: u16, sga: AppSga) {
        self.ledger = freed(&of_link(&self.ledger, link), &sga);
        let demi = self.demi;
        demi.sgafree(&mut self.caller, sga);
    }

    fn sgafree_lent(&mut self, link: u16, half: LentSga) {
        self.ledger = freed_lent(&of_link(&self.ledger, link), &half);
        let demi = self.demi;
        demi.sgafree_lent(&mut self.caller, half);
    }

    fn lend(&mut self, _link: u16, sga: AppSga) -> (LentSga, DevSga) {
        let demi = self.demi;
        demi.lend(&mut self.caller, sga)
    }

    fn rejoin(&mut self, _link: u16, half: LentSga, dev: DevSga) -> AppSga {
        let demi = self.demi;
        demi.rejoin(&mut self.caller, half, dev)
    }

    fn pop(&mut self, link: u16) -> Result<QToken, NoToken> {
        if link >= self.links {
            self.ledger = no_token(&self.ledger);
            return Err(NoToken);
        }
        let demi = self.demi;
        match pop_at(demi, &mut self.caller, link) {
            Some(token) => {
                self.ledger = popped(&of_link(&self.ledger, link), token);
                Ok(token)
            }
            None => {
                self.ledger = no_token(&self.ledger);
                Err(NoToken)
            }
        }
    }

    fn try_rx(&mut self, link: u16, token: QToken) -> Redeem<RxLaw> {
        let trying = trying(&of_link(&self.ledger, link), token);
        let demi = self.demi;
        let came = rx_at(demi, &mut self.caller, self.links, link, token);
        self.ledger = rx_tried(&trying, &came);
        came
    }

    fn draw(&mut self, link: u16, talk: &Mark<Talk>) -> Option<u64> {
        if self.drawn == u64::MAX {
            self.ledger = used_up(&self.ledger);
            return None;
        }
        self.drawn += 1;
        an_only_link_is_served_in_order();
        self.ledger = drew(&of_link(&self.ledger, link), talk);
        Some(self.drawn)
    }

    /// It is also refused where no number is left.
    fn ask(&mut self, link: u16, talk: &Mark<Talk>, op: StoreOp) -> Result<(QToken, u64), StoreOp> {
        if link >= self.links || self.drawn == u64::MAX {
            self.ledger = no_token(&self.ledger);
            return Err(op);
        }
        let sequence = self.drawn + 1;
        let given = giving(&of_link(&self.ledger, link), &op);
        let demi = self.demi;
        match ask_at(demi, &mut self.caller, sequence, op) {
            Ok(token) => {
                self.drawn = sequence;
                an_only_link_is_served_in_order();
                let numbered = drew(&of_link(&given, link), talk);
                self.ledger = asked(&of_link(&numbered, link), token);
                Ok((token, sequence))
            }
            Err(op) => {
                self.ledger = no_token(&self.ledger);
                Err(op)
            }
        }
    }

    fn try_store(&mut self, link: u16, token: QToken) -> Redeem<StoreLaw> {
        let trying = trying(&of_link(&self.ledger, link), token);
        let demi = self.demi;
        let came = store_at(demi, &mut self.caller, self.links, link, token);
        self.ledger = store_tried(&trying, &came);
        came
    }

    fn push(&mut self, link: u16, sga: AppSga) -> Result<(QToken, LentSga), AppSga> {
        if link >= self.links {
            self.ledger = no_token(&self.ledger);
            return Err(sga);
        }
        let demi = self.demi;
        match push_at(demi, &mut self.caller, link, sga) {
            Ok((token, half)) => {
                self.ledger = pushed(&of_link(&self.ledger, link), token);
                Ok((token, half))
            }
            Err(sga) => {
                self.ledger = no_token(&self.ledger);
                Err(sga)
            }
        }
    }

    fn try_tx(&mut self, link: u16, token: QToken) -> Redeem<TxLaw> {
        let trying = trying(&of_link(&self.ledger, link), token);
        let demi = self.demi;
        let came = tx_at(demi, &mut self.caller, self.links, link, token);
        self.ledger = tx_tried(&trying, &came);
        came
    }

    ghost goes_beside = { goes_beside };
}
