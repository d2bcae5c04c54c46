//! Sends, takes, masks, actions and stops of threads: for each event a check, which takes no memory, and the step of what
//! is due.
#![tactic(auto)]

mod actions;
mod acts;
mod choices;
mod kills;
mod masks;
mod scripts;
mod stops;
mod takers;
mod takes;

pub use actions::{check_set_action, set_action};
pub use acts::act_on;
pub use choices::{admits_take, admits_take_any, took_reply};
pub use kills::{check_kill, check_sigqueue, check_tgkill, fate_in, kill, sigqueue, tgkill};
pub use masks::{check_mask, check_pause, mask, pause};
pub use scripts::{change_own, check_script, script};
pub use stops::{check_halt, check_trap, halt, show_stop, trap};
pub use takers::{check_take_any, take_any};
pub use takes::{check_take, did_at_take, take};
