// One history in which an ONU is measured, told and in service.
#![tactic(auto)]

ghost use Rattle.history.specs.History.{History};

// There is such a history: a run that meets all premises, so the laws speak of something.
pub fn history_stands()
    ensures { History }
{}

#[cfg(test)]
mod trials;
