// Who answers events. It relies on `engine_core` for the engine.

ghost use Rattle.std.specs.Prelude.{◌≡◌};
ghost use Rattle.engine_core.specs.declared.event.Event.{Event as TheEvent};
ghost use Rattle.engine_core.specs.declared.reply.Reply.{Reply as TheReply};
ghost use Rattle.engine_core.specs.Replies.{IsRecorded, ReplyMatchesEvent};

use engine_core::{Engine, Event, Reply};

/// Answers events, one at a time: an engine, or what stands for one. Contracts call what an answer does `answers`: whoever
/// is asked, the event, the reply, and what is asked next.
pub trait Responder {
    ghost answers: { Self → TheEvent → TheReply → Self → Type 0 };

    /// What the event leads to.
    fn answer(&mut self, event: Event<'_>) -> Reply
        ensures { answers self.old event.entry result self.new };
}

impl Responder for Engine {
    ghost answers = { λ old event reply new. IsRecorded old event reply new × ReplyMatchesEvent event reply };

    fn answer(&mut self, event: Event<'_>) -> Reply {
        Engine::answer(self, event)
    }
}
