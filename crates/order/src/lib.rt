// One order of the acts of several halls: what lists of calls come to, and the promises that all of them keep.
#![tactic(auto)]

mod calls;
mod making;
mod promises;

pub use calls::{Call, Said};
pub use making::{TooShort, conduct, make};
pub use promises::{
    all_or_none_holds, confirmed_is_done, congress_is_kept, one_order_holds, removal_holds,
};
