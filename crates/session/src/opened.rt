// How a session that is read begins.
ghost use Rattle.std.specs.Prelude.{length};
ghost use Rattle.session.specs.States.{Left};

use crate::commands::Header;
use crate::shelf::Sources;

// A session that begins well: what is read, its header and its commands.
#[derive(Clone, Copy)]
pub(crate) struct Opened<'a> {
    pub(crate) sources: Sources<'a>,
    pub(crate) header: Header,
    pub(crate) commands: &'a [u8],
    ghost left: { Left sources.session.now commands.now },
}
