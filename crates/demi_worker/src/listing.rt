//! How the end of a link is listed.
ghost use Rattle.std.specs.Prelude.{◌≡◌, ◌<◌, length};
ghost use Rattle.demi_worker.specs.Ending.{Lists};
ghost use Rattle.demi_worker.specs.Stopping.{IsStopped};

use crate::ended::Ended;
use crate::had::had_for;
use crate::serves::Serves;
use crate::worker::Worker;
use demi_link::LinkEnd;
use std::sync::Wait;

impl<C: Serves> Worker<C> {
    // Lists what became of a link, with what the worker has for it now, and then stops its ports.
    pub(crate) fn list<R: Wait>(&mut self, rt: &R, end: LinkEnd)
        requires { length self.old.ended.items < 64 }
        ensures listed { Lists self.old.ended.items self.new.ended.items end.link end.cause end.talk.value (C.sight self.old.context end.link) }
        ensures stopped { IsStopped (C.sight self.old.context end.link) (C.sight self.new.context end.link) }
        ensures goes { C.goes end.link self.old.context self.new.context }
        ensures scheduler { self.new.scheduler ≡ self.old.scheduler }
        ensures number { self.new.number ≡ self.old.number }
    {
        let LinkEnd { link, cause, talk } = end;
        let had = had_for(&self.context, link);
        self.context.stop(rt, link);
        self.ended.push(Ended {
            link,
            cause,
            talk,
            had,
        });
    }
}
