//! What may watch the questions to bodies.
use rt_base::TxId;

/// Called before and after each question to a body, by the thread that asks it.
pub trait Gate {
    fn asked(&self, tx: TxId);

    fn answered(&self, tx: TxId);
}

/// A gate that does nothing.
pub struct NoGate;

impl Gate for NoGate {
    fn asked(&self, _tx: TxId) {}

    fn answered(&self, _tx: TxId) {}
}
