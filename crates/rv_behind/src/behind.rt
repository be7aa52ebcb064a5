//! The host behind the turn.

mod begun;
mod loads;

ghost use Rattle.std.specs.Prelude.{◌≡◌, true, false, IfOk, IfErr, IfSome};
ghost use Rattle.std.specs.Arc.{arc_value};
ghost use Rattle.rv_exec.specs.Bodies.{bodies_view};
ghost use Rattle.rv_behind.specs.Events.{log_in};
ghost use Rattle.rv_behind.specs.Acting.{AreBrought, Does, changes};

use crate::event::{Ask, Event, Lent, Letter, NONE, Reply};
use begun::begun_by;
use rv_event::entry::{Answer, Request};
use rv_history::limits::Limits;
use rv_host::host::Host;
use rv_host::pages::Page;
use rv_runs::ready::Ready;
use rv_turn::Counted;
use rv_view::View;
use std::alloc::{AllocFailed, Global};
use std::sync::Arc;

/// The host, as what threads act on one at a time, and the bodies of its units, of which each load
/// brings those of one, and whose calls fit these units. The host is in a box, since an act moves this
/// value twice.
#[derive(Drop)]
pub struct Behind {
    /// Where memory is taken from.
    pub alloc: Global,
    /// The host.
    pub host: Box<Host>,
    /// The bodies of its units.
    pub bodies: Arc<Ready, Global>,
    pub ghost brought: { AreBrought host.value (arc_value bodies).bodies },
}

// Whether a body starts with the answer.
fn starts(answer: &Answer) -> bool {
    matches!(answer, Answer::Started(_) | Answer::Woken(Some(_)))
}

// Whether the operator alone may ask it.
fn is_change(ask: &Ask) -> bool
    ensures { result ≡ changes ask.now }
{
    !matches!(
        ask,
        Ask::Step(_) | Ask::Read(_) | Ask::Entries(_) | Ask::View | Ask::Bodies
    )
}

impl Behind {
    /// A host and the bodies of its units. Where there is no memory the host comes back.
    pub fn boxed(alloc: Global, host: Host, bodies: Arc<Ready, Global>) -> Result<Behind, Host>
        requires { AreBrought host (arc_value bodies).bodies }
        ensures ok { IfOk result (λ b. (b.host.value ≡ host) × ((arc_value b.bodies).bodies ≡ (arc_value bodies).bodies)) }
        ensures err { IfErr result (λ h. h ≡ host) }
    {
        match Box::new(alloc, host) {
            Ok(host) => Ok(Behind {
                alloc,
                host,
                bodies,
            }),
            Err(AllocFailed { value }) => Err(value),
        }
    }

    /// The host, out of its box.
    pub fn into_host(self) -> Host
        ensures { result ≡ self.host.value }
    {
        let Behind { host, .. } = self;
        Box::into_inner(host)
    }

    // The bodies. None where there are too many holders of them.
    fn share(&self) -> Option<Lent>
        ensures { IfSome result (λ l. bodies_view (arc_value l.bodies).bodies ≡ bodies_view (arc_value self.now.bodies).bodies) }
    {
        match Arc::try_clone(&self.bodies) {
            Ok(bodies) => Some(Lent { bodies }),
            Err(_) => None,
        }
    }

    // The bodies, for an answer that starts one.
    fn lend(&self, answer: &Answer) -> Option<Lent>
        ensures { IfSome result (λ l. bodies_view (arc_value l.bodies).bodies ≡ bodies_view (arc_value self.now.bodies).bodies) }
    {
        if !starts(answer) {
            return None;
        }
        self.share()
    }

    // The bodies, for a text.
    fn give_bodies(&self, actor: u64) -> Reply
        ensures { Does self.now.host.value.limits (log_in self.now.host.value (arc_value self.now.bodies).bodies) actor Ask.Bodies result (log_in self.now.host.value (arc_value self.now.bodies).bodies) }
    {
        self.host.replays();
        Reply::Bodies(self.share())
    }

    // A request, which is answered in its letter.
    fn step(&mut self, actor: u64, letter: &mut Letter)
        ensures does { Does self.old.host.value.limits (log_in self.old.host.value (arc_value self.old.bodies).bodies) actor (Ask.Step letter.old.request) (Reply.Answered letter.new.answer letter.new.begun letter.new.lent) (log_in self.new.host.value (arc_value self.new.bodies).bodies) }
        ensures request { letter.new.request ≡ letter.old.request }
        ensures about { self.new.host.value.limits ≡ self.old.host.value.limits }
    {
        let host = &mut *self.host;
        host.replays();
        host.put_answer(actor as usize, &letter.request, &mut letter.answer);
        letter.begun = begun_by(
            host.catalogue(),
            actor as usize,
            &letter.request,
            &letter.answer,
        );
        letter.lent = self.lend(&letter.answer);
    }

    // A request, as one of several things to ask.
    fn request(&mut self, actor: u64, request: &Request) -> Reply
        ensures does { Does self.old.host.value.limits (log_in self.old.host.value (arc_value self.old.bodies).bodies) actor (Ask.Step request.now) result (log_in self.new.host.value (arc_value self.new.bodies).bodies) }
        ensures about { self.new.host.value.limits ≡ self.old.host.value.limits }
    {
        let mut letter = Letter::new(request);
        self.step(actor, &mut letter);
        let Letter {
            answer,
            begun,
            lent,
            ..
        } = letter;
        Reply::Answered(answer, begun, lent)
    }

    // A page.
    fn read(&mut self, actor: u64, from: usize) -> Reply
        ensures does { Does self.old.host.value.limits (log_in self.old.host.value (arc_value self.old.bodies).bodies) actor (Ask.Read from) result (log_in self.new.host.value (arc_value self.new.bodies).bodies) }
        ensures about { self.new.host.value.limits ≡ self.old.host.value.limits }
    {
        let host = &*self.host;
        host.replays();
        let mut page = Page::new(self.alloc);
        match host.entries(self.alloc, from, &mut page) {
            Ok(()) => Reply::Read(page),
            Err(_) => Reply::Unread,
        }
    }

    // The entries of a page. No text is made, so that others don't wait for it.
    fn entries(&self, actor: u64, from: usize) -> Reply
        ensures { Does self.now.host.value.limits (log_in self.now.host.value (arc_value self.now.bodies).bodies) actor (Ask.Entries from) result (log_in self.now.host.value (arc_value self.now.bodies).bodies) }
    {
        let host = &*self.host;
        host.replays();
        match host.marked(self.alloc, from) {
            Ok(marked) => Reply::Entries(marked),
            Err(_) => Reply::Unread,
        }
    }

    // What is shown.
    fn view(&self, actor: u64) -> Reply
        ensures { Does self.now.host.value.limits (log_in self.now.host.value (arc_value self.now.bodies).bodies) actor Ask.View result (log_in self.now.host.value (arc_value self.now.bodies).bodies) }
    {
        let host = &*self.host;
        host.replays();
        match View::of(self.alloc, host) {
            Ok(view) => Reply::Viewed(view),
            Err(_) => Reply::Unread,
        }
    }

    // What any actor may ask.
    fn serve(&mut self, actor: u64, ask: &Ask) -> Reply
        requires { changes ask.now ≡ false }
        ensures does { Does self.old.host.value.limits (log_in self.old.host.value (arc_value self.old.bodies).bodies) actor ask.now result (log_in self.new.host.value (arc_value self.new.bodies).bodies) }
        ensures about { self.new.host.value.limits ≡ self.old.host.value.limits }
    {
        match ask {
            Ask::Step(request) => self.request(actor, request),
            Ask::Read(from) => self.read(actor, *from),
            Ask::Entries(from) => self.entries(actor, *from),
            Ask::View => self.view(actor),
            Ask::Bodies => self.give_bodies(actor),
            _ => unreachable!(),
        }
    }

    // What the operator alone may ask.
    fn operate(&mut self, ask: Ask) -> Reply
        requires { changes ask ≡ true }
        ensures does { Does self.old.host.value.limits (log_in self.old.host.value (arc_value self.old.bodies).bodies) 0 ask result (log_in self.new.host.value (arc_value self.new.bodies).bodies) }
        ensures about { self.new.host.value.limits ≡ self.old.host.value.limits }
    {
        self.host.replays();
        match ask {
            Ask::Load(shape, unit) => Reply::Answered(self.load(&shape, unit), NONE, None),
            Ask::LoadWithoutMemory(shape) => {
                Reply::Answered(self.load_without_memory(&shape), NONE, None)
            }
            Ask::Change(change) => Reply::Answered(self.host.change_list(&change), NONE, None),
            _ => unreachable!(),
        }
    }

    // The same, where another actor asks.
    fn refuse(&self, actor: u64, ask: &Ask) -> Reply
        requires changes { changes ask.now ≡ true }
        requires other { actor ≡ 0 → ⊥ }
        ensures { Does self.now.host.value.limits (log_in self.now.host.value (arc_value self.now.bodies).bodies) actor ask.now result (log_in self.now.host.value (arc_value self.now.bodies).bodies) }
    {
        self.host.replays();
        let _ = ask;
        Reply::Answered(Answer::Misuse, NONE, None)
    }
}

impl Counted for Behind {
    ghost use Rattle.std.specs.Arc.{arc_value};
    ghost use Rattle.rv_behind.specs.Events.{log_in, by};
    ghost use Rattle.rv_behind.specs.Acting.{Does};
    ghost use Rattle.rv_behind.specs.Adding.{adds};
    ghost use Rattle.rv_behind.specs.declared.event.Ask.{Ask};
    ghost use Rattle.rv_behind.specs.declared.event.Reply.{Reply};

    type Ask = Ask;

    type Reply = Reply;

    type Letter = Letter;

    type Entry = Event;

    type About = Limits;

    ghost history = { λ b. log_in b.host.value (arc_value b.bodies).bodies };

    ghost about = { λ b. b.host.value.limits };

    ghost actor_of = { by };

    ghost answers = { Does };

    ghost asked = { λ l. Ask.Step l.request };

    ghost replied = { λ l. Reply.Answered l.answer l.begun l.lent };

    ghost adds = { adds };

    fn act(&mut self, actor: u64, ask: Ask) -> Reply {
        if !is_change(&ask) {
            return self.serve(actor, &ask);
        }
        if actor == 0 {
            self.operate(ask)
        } else {
            self.refuse(actor, &ask)
        }
    }

    fn answer(&mut self, actor: u64, letter: &mut Letter) {
        self.step(actor, letter);
    }

    #[tactic(auto, using(crate::proofs::Zips::length_log))]
    fn count(&self) -> u64 {
        self.host.used() as u64
    }
}
