//! The forms of a text that gives an order.

ghost use Rattle.std.specs.Prelude.{◌≡◌};
ghost use Rattle.cert_text.specs.inner.OrderHeld.{has_runs, has_front};

use audit_model::PageReason;

/// The form of a text that gives an order.
#[derive(Clone, Copy)]
pub enum OrderForm {
    /// A text of runs.
    Runs,
    /// The report on a session with a fault: a text of runs below a line that gives the fault's line and its reason.
    Faulty { line: u32, reason: PageReason },
    /// A certificate.
    Cert,
    /// The report on a clean session: a certificate below a line that says so.
    Clean,
}

impl OrderForm {
    /// Returns whether the order is given by a text of runs, and not by a certificate.
    pub(crate) fn has_runs(&self) -> bool
        ensures { result ≡ has_runs self.now }
    {
        match self {
            OrderForm::Runs => true,
            OrderForm::Faulty { .. } => true,
            OrderForm::Cert => false,
            OrderForm::Clean => false,
        }
    }

    /// Returns whether the first line of a report comes before the text that gives the order.
    pub(crate) fn has_front(&self) -> bool
        ensures { result ≡ has_front self.now }
    {
        match self {
            OrderForm::Runs => false,
            OrderForm::Faulty { .. } => true,
            OrderForm::Cert => false,
            OrderForm::Clean => true,
        }
    }
}
