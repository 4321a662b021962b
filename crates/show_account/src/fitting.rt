// Whether an event is wanted. It relies on `show_events` for what is wanted, on `show_sense` for what sense data reports, and on
// `engine_config` for which queues are under a controller.

use ccb::{Place, QueueId};
use engine_config::Config;
use show_events::{Event, Filter, RefusedFilter, SenseFilter, Subject};
use show_sense::sense_code;

/// Whether the event fits all that is wanted.
pub fn fits(filter: &Filter, event: &Event, config: &Config) -> bool {
    is_about(filter, &event.subject, event.clock, config)
        && has_reported(filter, event)
        && is_refused(filter.refused, event)
}

/// Whether something that was there at that clock reading, and is no event, fits all that is wanted.
pub(crate) fn fits_carried(
    filter: &Filter,
    subject: &Subject,
    clock: u64,
    config: &Config,
) -> bool {
    is_about(filter, subject, clock, config)
        && filter.status.is_none()
        && filter.sense.is_none()
        && filter.refused.is_none()
}

// Whether it is about what is wanted, and within the times that are wanted.
fn is_about(filter: &Filter, subject: &Subject, clock: u64, config: &Config) -> bool {
    is_wanted(filter.ccb, subject.ccb)
        && is_wanted(filter.run, subject.run)
        && is_wanted(filter.freeze, subject.freeze)
        && is_at(filter.queue, subject.place, config)
        && filter.from.is_none_or(|from| from <= clock)
        && filter.to.is_none_or(|to| clock <= to)
}

// Whether it is a completion that reports what is wanted of completions, or nothing is.
fn has_reported(filter: &Filter, event: &Event) -> bool {
    match filter.status {
        Some(_) => event.scsi_status() == filter.status && has_sense(filter.sense, event),
        None => has_sense(filter.sense, event),
    }
}

// Whether it is a completion with the sense data that is wanted, or none is.
fn has_sense(wanted: Option<SenseFilter>, event: &Event) -> bool {
    let Some(wanted) = wanted else {
        return true;
    };
    match sense_code(event.sense()) {
        Some(code) => {
            code.key == wanted.key
                && wanted.asc.is_none_or(|asc| asc == code.asc)
                && wanted.ascq.is_none_or(|ascq| ascq == code.ascq)
        }
        None => false,
    }
}

// Whether it is a call that is refused so, or none is wanted.
fn is_refused(wanted: Option<RefusedFilter>, event: &Event) -> bool {
    match wanted {
        None => true,
        Some(RefusedFilter::Any) => event.happening.is_refused(),
        Some(RefusedFilter::So(refusal)) => {
            event.happening.is_refused() && event.values.refusal == refusal
        }
    }
}

// Whether that number is wanted, or none is.
fn is_wanted(wanted: Option<u32>, is: Option<u32>) -> bool {
    match wanted {
        Some(_) => wanted == is,
        None => true,
    }
}

// Whether it was at that queue or at the controller that the queue is under, or no queue is wanted.
fn is_at(wanted: Option<u8>, place: Option<Place>, config: &Config) -> bool {
    let Some(wanted) = wanted else {
        return true;
    };
    let wanted = QueueId(u32::from(wanted));
    match place {
        Some(Place::Device(queue)) => queue == wanted,
        Some(Place::Controller(controller)) => {
            wanted.0 < config.queues() && config.controller(wanted) == controller
        }
        None => false,
    }
}
