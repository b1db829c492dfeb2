//! What the words ask of the program: which objects it makes for its call.
ghost use Rattle.std.specs.Prelude.{◌≡◌};
ghost use Rattle.ice_top.specs.Calls.{form_told};
ghost use Rattle.ice_top.specs.Tasks.{TaskSaid, task_by};
ghost use Rattle.ice_top.specs.Words.{texts};

use crate::task_kind::Task;
use crate::words::{Call, Form, call_of};

/// The task of the words.
pub fn task(words: &[String]) -> Task
    ensures said { TaskSaid (texts words.now) result }
    // It is said of no other.
    ensures one { (other : Task) → TaskSaid (texts words.now) other → other ≡ result }
{
    match call_of(words) {
        Some(Call { form, part: _ }) => task_by(&form),
        None => Task::Usage,
    }
}

/// The task of a form.
fn task_by(form: &Form<'_>) -> Task
    ensures { result ≡ task_by (form_told form.now) }
{
    match form {
        Form::Replay { .. } => Task::Local,
        Form::Script { .. } => Task::Local,
        Form::Frames => Task::Local,
        Form::Gen { .. } => Task::Local,
        Form::Listing { .. } => Task::Local,
        Form::Verify { .. } => Task::Local,
        Form::Assembly => Task::Local,
        Form::Serve { port, .. } => Task::Serve(*port),
        Form::Connect { port } => Task::Connect(*port),
    }
}
