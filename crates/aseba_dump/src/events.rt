//! The names of events.
ghost use Rattle.std.specs.Prelude.{◌≡◌, ◌++◌, OnOk};
ghost use Rattle.aseba_tree.specs.Events.{event_of};
ghost use Rattle.aseba_tree.specs.View.{project_view};
ghost use Rattle.aseba_dump.specs.Said.{event_name};

use aseba_text::Text;
use aseba_tree::Project;
use aseba_words::Mem;

/// Adds the name of an event, or `event` and its number where the project has none of that number.
pub fn push_event(out: &mut Text, project: &Project, number: u16) -> Result<(), Mem>
    ensures { OnOk result (out.new ≡ out.old ++ event_name (event_of (project_view project.now) number)) }
{
    let events = project.events.as_slice();
    let index = usize::from(number);
    if index >= events.len() {
        out.push(b"event ")?;
        return out.push_number(u64::from(number));
    }
    out.push(events[index].name.as_bytes())
}
