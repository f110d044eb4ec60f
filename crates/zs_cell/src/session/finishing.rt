//! Queries that come back from handlers, and that the session is told of: each is given back by one event more.
ghost use Rattle.std.specs.Prelude.{◌≡◌, ◌⊎◌, [], false, IfOk, OnOk, OnErr};
ghost use Rattle.zs_events.specs.declared.event.Event.TheVariants.{Finish};
ghost use Rattle.zs_hands.specs.Answers.{AreOfRoom};
ghost use Rattle.zs_cell.specs.Further.{Adds, AddsSome};
ghost use Rattle.zs_cell.specs.Works.{returned};

use crate::ending::AllTold;
use crate::reports::{Reports, Returned};
use crate::session::Session;
use crate::taking::take_more;
use crate::work::Work;
use std::alloc::AllocError;
use std::sync::Wait;
use zs_books::Books;
use zs_events::Event;
use zs_gate::NoPass;
use zs_handlers::Handler;
use zs_held::Receipt;
use zs_shared::Shared;
use zs_turns::Item;

type Caller<B> = zs_books::Caller<B, Receipt<B>>;

impl<H: Handler<Item> + Drop, B: Books> Session<H, B> {
    // Takes one event more in one hold of the lock. The caller counts it, and keeps the receipt that it has.
    #[tactic(none)]
    fn add_once<R: Wait>(
        &self,
        rt: &R,
        event: &Shared<Event>,
        caller: &mut Caller<B>,
    ) -> Result<Work<H, H::Done>, NoPass>
        ensures ok { OnOk result (Adds B.Entries.settings event.now caller.old caller.new) }
        ensures lents { IfOk result (λ work. AreOfRoom self.now.lock.key work.lents) }
        ensures waits { IfOk result (λ work. work.waits ≡ false) }
        ensures err { OnErr result (caller.new ≡ caller.old) }
    {
        let Ok(copy) = event.try_clone() else {
            return Err(NoPass::NoMemory);
        };
        let (mut held, taken) = self.shared.lock.take(rt);
        let adding = take_more(&mut held, copy, caller);
        taken.put(held);
        adding
    }

    // Takes one event more, as soon as each gate has the passes that its calls need.
    fn add<R: Wait>(
        &self,
        rt: &R,
        event: &Shared<Event>,
        caller: &mut Caller<B>,
    ) -> Result<Work<H, H::Done>, AllocError>
        ensures ok { OnOk result (Adds B.Entries.settings event.now caller.old caller.new) }
        ensures lents { IfOk result (λ work. AreOfRoom self.now.lock.key work.lents) }
        ensures waits { IfOk result (λ work. work.waits ≡ false) }
        ensures err { OnErr result (caller.new ≡ caller.old) }
    {
        for _ in rt.forever() {
            match self.add_once(rt, event, caller) {
                Ok(work) => return Ok(work),
                Err(NoPass::NoMemory) => return Err(AllocError),
                Err(NoPass::Full) => {}
            }
        }
        unreachable!()
    }

    // Makes the calls of an event that was taken, where no gate is waited for: what became of each item, once all ends were told.
    fn run<R: Wait>(&self, rt: &R, work: Work<H, H::Done>) -> (Reports<H::Done>, AllTold)
        requires lents { AreOfRoom self.now.lock.key work.lents }
        requires waits { work.waits ≡ false }
    {
        let (worked, closing) = work.run(rt);
        let None = closing else { unreachable!() };
        self.settle(rt, worked)
    }

    // Gives a query back that came back, by one event more: what became of the items that were handed out of it, once all ends
    // were told.
    fn finish<R: Wait>(
        &self,
        rt: &R,
        query: Returned,
        caller: &mut Caller<B>,
    ) -> Result<(Reports<H::Done>, AllTold), AllocError>
        requires { query.tag ≡ self.now.tag }
        ensures ok { OnOk result (Adds B.Entries.settings (Finish query.value) caller.old caller.new) }
        ensures err { OnErr result (caller.new ≡ caller.old) }
    {
        let value = query.into_value();
        let event = Shared::new(self.alloc(), Event::Finish { value })?;
        let adding = self.add(rt, &event, caller);
        drop(event);
        match adding {
            Ok(work) => Ok(self.run(rt, work)),
            Err(why) => Err(why),
        }
    }

    // Gives a query back that came back, and puts what came back of that behind the others. Want of memory leaves it.
    fn finish_into<R: Wait>(
        &self,
        rt: &R,
        query: Returned,
        reports: &mut Reports<H::Done>,
        caller: &mut Caller<B>,
    )
        requires { query.tag ≡ self.now.tag }
        ensures { (Adds B.Entries.settings (Finish query.value) caller.old caller.new) ⊎ (caller.new ≡ caller.old) }
    {
        if let Ok(finished) = self.finish(rt, query, caller) {
            let (more, told) = finished;
            let _ = reports.add(more, told);
        }
    }

    // Gives all queries of this session back that came back, in order, each by one event more. Want of memory leaves one. The
    // reports are those of calls behind which all ends were told.
    pub(crate) fn give_up<R: Wait>(
        &self,
        rt: &R,
        asks: bool,
        reports: Reports<H::Done>,
        told: AllTold,
        caller: &mut Caller<B>,
    )
        ensures further { AddsSome B.Entries.settings caller.old caller.new }
        ensures none { returned self.now.tag asks reports ≡ [] → caller.new ≡ caller.old }
    {
        let mut left = reports;
        for _ in rt.forever() {
            match left.next(self.tag(), asks) {
                Some(query) => self.finish_into(rt, query, &mut left, caller),
                None => {
                    left.end(told);
                    return;
                }
            }
        }
        unreachable!()
    }
}
