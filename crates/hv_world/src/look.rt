// What a statement reads of the catalogue, and replies that tell a length of its history.
ghost use Rattle.std.specs.Prelude.{◌≡◌, length};
ghost use Rattle.hv_model.specs.declared.reply.Reply.{Reply};

use crate::stage::Look;
use hv_catalogue::Catalogue;
use hv_chunk::Chunk;
use hv_dev::PageFile;
use hv_model::{Failure, Refusal, Reply};
use std::snapshot::Snapshot;

/// What the catalogue holds now. Takes no memory.
pub fn look_at<F: PageFile>(catalogue: &Catalogue<Chunk<F>>) -> Look<F>
    ensures at { result.at ≡ length catalogue.now.history }
    ensures held { result.held.value ≡ catalogue.now }
{
    Look {
        at: catalogue.length(),
        held: Snapshot::of(catalogue),
    }
}

/// The refusal of a statement at the present length, which changes nothing.
pub fn refused<F: PageFile>(catalogue: &Catalogue<Chunk<F>>, cause: Refusal) -> Reply
    ensures { result ≡ Reply.Refused (length catalogue.now.history) cause }
{
    Reply::Refused {
        at: catalogue.length(),
        cause,
    }
}

/// The failure of a statement that last looked then.
pub fn failed<F>(look: &Look<F>, cause: Failure) -> Reply
    ensures { result ≡ Reply.Failed look.now.at cause }
{
    Reply::Failed { at: look.at, cause }
}
