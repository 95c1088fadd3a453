//! The moments by which the two timers of a session run.

ghost use Rattle.std.specs.Prelude.{◌≡◌, Some};
ghost use Rattle.sshc_handle_state.specs.Clocks.{begun, due_in, has_passed, is_inactive, is_keepalive_due};
ghost use Rattle.sshc_handle_state.specs.Clocks.{left_of, sooner};

/// The two timers of a session, with the moments by which they run, in milliseconds.
#[derive(Clone, Copy, PartialEq, Eq)]
pub struct Timers {
    /// For how long it may be that nothing is heard.
    pub inactivity_timeout: Option<u64>,
    /// How long after the last transport event or keepalive timer a keepalive is due.
    pub keepalive_interval: Option<u64>,
    /// The moment of the last transport event. That of the first turn counts as one; before it there is none.
    pub heard: Option<u64>,
    /// The moment of the last keepalive timer, 0 before the first.
    pub beat: u64,
}

fn has_passed(span: Option<u64>, since: u64, now: u64) -> bool
    ensures { result ≡ has_passed span since now }
{
    match span {
        Some(span) => now.saturating_sub(since) >= span,
        None => false,
    }
}

/// How much of a span since a moment is left.
fn left_of(span: Option<u64>, since: u64, now: u64) -> Option<u64>
    ensures { result ≡ left_of span since now }
{
    match span {
        Some(span) => Some(span.saturating_sub(now.saturating_sub(since))),
        None => None,
    }
}

/// The sooner of two, if there is one.
fn sooner(one: Option<u64>, other: Option<u64>) -> Option<u64>
    ensures { result ≡ sooner one other }
{
    match (one, other) {
        (Some(one), Some(other)) => Some(one.min(other)),
        (Some(one), None) => Some(one),
        (None, other) => other,
    }
}

impl Timers {
    /// The first turn's moment counts as that of a transport event.
    pub(crate) fn begin(&mut self, now: u64)
        ensures { self.new ≡ begun now self.old }
    {
        if self.heard.is_none() {
            self.heard = Some(now);
        }
    }

    /// A transport event came.
    pub(crate) fn hear(&mut self, now: u64)
        ensures { self.new ≡ record self.old { heard = Some now } }
    {
        self.heard = Some(now);
    }

    /// The keepalive timer ran out.
    pub(crate) fn strike(&mut self, now: u64)
        ensures { self.new ≡ record self.old { beat = now } }
    {
        self.beat = now;
    }

    /// Whether nothing came for as long as the settings allow.
    pub(crate) fn is_inactive(&self, now: u64) -> bool
        ensures { result ≡ is_inactive now self.now }
    {
        has_passed(self.inactivity_timeout, self.heard.unwrap_or(now), now)
    }

    /// How long after a moment the next timer runs out; 0 if one has run out, `None` if none is set.
    pub(crate) fn due_in(&self, now: u64) -> Option<u64>
        ensures { result ≡ due_in now self.now }
    {
        let heard = self.heard.unwrap_or(now);
        let inactive = left_of(self.inactivity_timeout, heard, now);
        let keepalive = left_of(self.keepalive_interval, heard.max(self.beat), now);
        sooner(inactive, keepalive)
    }

    /// Whether it is time for a keepalive.
    pub(crate) fn is_keepalive_due(&self, now: u64) -> bool
        ensures { result ≡ is_keepalive_due now self.now }
    {
        has_passed(
            self.keepalive_interval,
            self.heard.unwrap_or(now).max(self.beat),
            now,
        )
    }
}
