//! What the commands of a session do on its connections, what finished logs answer to them, and what these say of each tracked
//! status.
#![tactic(auto)]

mod blocks;
mod deed;
mod laws;

pub use blocks::{Block, BlockState, Blocks};
pub use deed::Deed;
pub use laws::{
    connections_are_handed_out_clean, depth_stands_over_the_server,
    depths_stand_over_their_servers, dialects_leave_fewer_premises, entries_are_borne_out,
    entries_are_recorded, kept_writes_are_the_fold, kept_writes_are_the_fold_of_entries,
    names_rise, server_holds_the_stack, servers_hold_the_stacks_of_entries,
    statements_are_prepared_once, statements_are_their_own, status_is_borne_out,
};
