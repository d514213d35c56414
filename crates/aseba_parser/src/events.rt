ghost use Rattle.std.specs.Prelude.{◌≡◌};
ghost use Rattle.aseba_tree.specs.Spells as spells;
ghost use Rattle.aseba_tree.specs.View.{project_view};

use aseba_tree::Project;
use aseba_words::Name;

/// Whether an `emit` of that name has an expression: the project gives the event a size above 0.
pub fn takes_argument(project: &Project, name: &Name) -> bool
    ensures { result ≡ spells.takes_argument (project_view project.now) name.now }
{
    for event in project.events.as_slice() {
        if event.name == *name {
            return event.size > 0;
        }
    }
    false
}
