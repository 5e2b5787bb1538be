//! What a section of a job answers.

use mi_base::Reply;

/// What a section of a job answers.
#[derive(Drop)]
pub enum JobTurn {
    /// The operation goes on.
    More,
    /// Another actor holds what this section claims. It is made again.
    Held,
    /// The operation has ended.
    Done { reply: Reply },
}
