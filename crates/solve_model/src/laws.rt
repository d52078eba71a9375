// Laws that hold of every program, goal and template.
ghost use Rattle.solve_model.specs.Laws.{MoreOnlyAdds, MarksStand, PromptsTakeReplies};

/// More steps and more replies only add: with them a query gives the same, or it stopped for want of them and its marks begin those of the longer query.
pub fn more_only_adds()
    ensures { MoreOnlyAdds }
{}

/// What was marked within the limit stands, an answer after the last step too: with more steps a query gives these marks, and none but later ones.
pub fn marks_stand()
    ensures { MarksStand }
{}

/// A query asks for each reply that it takes. Where it waits for one, it has taken all replies and asked for one more.
pub fn prompts_take_replies()
    ensures { PromptsTakeReplies }
{}
