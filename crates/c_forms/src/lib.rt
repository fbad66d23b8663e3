//! What a program in C is told: plain records and numbers for what the calls of a core take and answer, and for margins and
//! refusals; the tables from which a set is made; and a box as pointer and allocator.
#![tactic(auto)]

mod entries;
mod forms;
mod laws;
mod margin_forms;
mod margin_laws;
mod raw_box;
mod refusals;
mod slot;
mod tables;

pub use entries::{EntryForm, entry_of, put_entries, put_entry};
pub use forms::{
    EndForm, JobForm, OpForm, StepForm, TimeForm, end_form, end_of, idle_form, job_form, job_of,
    op_of, plan_form, plan_next_form, put_done, put_reply, put_step,
};
pub use laws::records_lose_nothing;
pub use margin_forms::{MarginForm, margin_form};
pub use margin_laws::margins_lose_nothing;
pub use refusals::{
    BAD_TABLE, NO_MEMORY, NO_ROOM, NOT_ADMITTED, NOT_COMPILED, OK, RefusalForm, Refused,
    refusal_form,
};
pub use slot::Slot;
pub use tables::{ItemRow, Tables, TogetherRow, TxnRow, compiled};
