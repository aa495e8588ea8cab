ghost use Rattle.std.specs.Prelude.{◌≡◌, find};
ghost use Rattle.std.specs.Str.{bytes_eq};
ghost use Rattle.verb_arguments.specs.VerbNames.{verb_name, verbs, known_by as known_lists, known};
ghost use Rattle.verb_arguments.specs.Working.{later_name, laters, left_out_name, left_outs, named};

/// The verbs that are built.
#[derive(Debug, Clone, Copy, PartialEq, Eq)]
pub enum VerbName {
    Filter,
    Mutate,
    Select,
    Rename,
    Relocate,
    GroupBy,
    Ungroup,
    DropNa,
    ReplaceNa,
}

/// The verbs that are not built yet.
#[derive(Debug, Clone, Copy, PartialEq, Eq)]
pub enum LaterVerb {
    Arrange,
    Summarise,
    Summarize,
    Count,
    Distinct,
    Head,
    Slice,
    SliceHead,
    SliceTail,
    SliceMin,
    SliceMax,
    InnerJoin,
    LeftJoin,
    RightJoin,
    FullJoin,
    SemiJoin,
    AntiJoin,
    PivotLonger,
    PivotWider,
    Fill,
}

/// The verbs that are left out.
#[derive(Debug, Clone, Copy, PartialEq, Eq)]
pub enum LeftOutVerb {
    Across,
    Rowwise,
    Reframe,
    Nest,
    Unnest,
    Separate,
    Unite,
    Transmute,
    BindRows,
    BindCols,
    Union,
    Intersect,
    Setdiff,
    GroupModify,
    Do,
    Pull,
    Tally,
    AddCount,
    Tail,
    SliceSample,
    CrossJoin,
}

/// What a name stands for behind a pipe: a verb, one that is not built yet, one that is left out, or no verb.
#[derive(Debug, Clone, Copy, PartialEq, Eq)]
pub enum Known {
    Built(VerbName),
    Later,
    LeftOut,
    Unknown,
}

const VERBS: [VerbName; 9] = [
    VerbName::Filter,
    VerbName::Mutate,
    VerbName::Select,
    VerbName::Rename,
    VerbName::Relocate,
    VerbName::GroupBy,
    VerbName::Ungroup,
    VerbName::DropNa,
    VerbName::ReplaceNa,
];

const LATER: [LaterVerb; 20] = [
    LaterVerb::Arrange,
    LaterVerb::Summarise,
    LaterVerb::Summarize,
    LaterVerb::Count,
    LaterVerb::Distinct,
    LaterVerb::Head,
    LaterVerb::Slice,
    LaterVerb::SliceHead,
    LaterVerb::SliceTail,
    LaterVerb::SliceMin,
    LaterVerb::SliceMax,
    LaterVerb::InnerJoin,
    LaterVerb::LeftJoin,
    LaterVerb::RightJoin,
    LaterVerb::FullJoin,
    LaterVerb::SemiJoin,
    LaterVerb::AntiJoin,
    LaterVerb::PivotLonger,
    LaterVerb::PivotWider,
    LaterVerb::Fill,
];

const LEFT_OUT: [LeftOutVerb; 21] = [
    LeftOutVerb::Across,
    LeftOutVerb::Rowwise,
    LeftOutVerb::Reframe,
    LeftOutVerb::Nest,
    LeftOutVerb::Unnest,
    LeftOutVerb::Separate,
    LeftOutVerb::Unite,
    LeftOutVerb::Transmute,
    LeftOutVerb::BindRows,
    LeftOutVerb::BindCols,
    LeftOutVerb::Union,
    LeftOutVerb::Intersect,
    LeftOutVerb::Setdiff,
    LeftOutVerb::GroupModify,
    LeftOutVerb::Do,
    LeftOutVerb::Pull,
    LeftOutVerb::Tally,
    LeftOutVerb::AddCount,
    LeftOutVerb::Tail,
    LeftOutVerb::SliceSample,
    LeftOutVerb::CrossJoin,
];

impl VerbName {
    /// How the verb is written.
    fn spelled(self) -> &'static str
        ensures { result.now ≡ verb_name self }
    {
        match self {
            VerbName::Filter => "filter",
            VerbName::Mutate => "mutate",
            VerbName::Select => "select",
            VerbName::Rename => "rename",
            VerbName::Relocate => "relocate",
            VerbName::GroupBy => "group_by",
            VerbName::Ungroup => "ungroup",
            VerbName::DropNa => "drop_na",
            VerbName::ReplaceNa => "replace_na",
        }
    }
}

impl LaterVerb {
    /// How the verb is written.
    fn spelled(self) -> &'static str
        ensures { result.now ≡ later_name self }
    {
        match self {
            LaterVerb::Arrange => "arrange",
            LaterVerb::Summarise => "summarise",
            LaterVerb::Summarize => "summarize",
            LaterVerb::Count => "count",
            LaterVerb::Distinct => "distinct",
            LaterVerb::Head => "head",
            LaterVerb::Slice => "slice",
            LaterVerb::SliceHead => "slice_head",
            LaterVerb::SliceTail => "slice_tail",
            LaterVerb::SliceMin => "slice_min",
            LaterVerb::SliceMax => "slice_max",
            LaterVerb::InnerJoin => "inner_join",
            LaterVerb::LeftJoin => "left_join",
            LaterVerb::RightJoin => "right_join",
            LaterVerb::FullJoin => "full_join",
            LaterVerb::SemiJoin => "semi_join",
            LaterVerb::AntiJoin => "anti_join",
            LaterVerb::PivotLonger => "pivot_longer",
            LaterVerb::PivotWider => "pivot_wider",
            LaterVerb::Fill => "fill",
        }
    }
}

impl LeftOutVerb {
    /// How the verb is written.
    fn spelled(self) -> &'static str
        ensures { result.now ≡ left_out_name self }
    {
        match self {
            LeftOutVerb::Across => "across",
            LeftOutVerb::Rowwise => "rowwise",
            LeftOutVerb::Reframe => "reframe",
            LeftOutVerb::Nest => "nest",
            LeftOutVerb::Unnest => "unnest",
            LeftOutVerb::Separate => "separate",
            LeftOutVerb::Unite => "unite",
            LeftOutVerb::Transmute => "transmute",
            LeftOutVerb::BindRows => "bind_rows",
            LeftOutVerb::BindCols => "bind_cols",
            LeftOutVerb::Union => "union",
            LeftOutVerb::Intersect => "intersect",
            LeftOutVerb::Setdiff => "setdiff",
            LeftOutVerb::GroupModify => "group_modify",
            LeftOutVerb::Do => "do",
            LeftOutVerb::Pull => "pull",
            LeftOutVerb::Tally => "tally",
            LeftOutVerb::AddCount => "add_count",
            LeftOutVerb::Tail => "tail",
            LeftOutVerb::SliceSample => "slice_sample",
            LeftOutVerb::CrossJoin => "cross_join",
        }
    }
}

fn verb_named(name: &str) -> Option<VerbName>
    ensures { result ≡ find (λ v. bytes_eq name.now (verb_name v)) verbs }
{
    VERBS.iter().copied().find(|verb| name == verb.spelled())
}

fn later_named(name: &str) -> Option<LaterVerb>
    ensures { result ≡ find (λ v. bytes_eq name.now (later_name v)) laters }
{
    LATER.iter().copied().find(|verb| name == verb.spelled())
}

fn left_out_named(name: &str) -> Option<LeftOutVerb>
    ensures { result ≡ find (λ v. bytes_eq name.now (left_out_name v)) left_outs }
{
    LEFT_OUT.iter().copied().find(|verb| name == verb.spelled())
}

/// What a name stands for, by what it is in each of the lists of verbs.
fn known_of(
    built: Option<VerbName>,
    later: Option<LaterVerb>,
    left_out: Option<LeftOutVerb>,
) -> Known
    ensures { result ≡ known_lists built (named later_name later) (named left_out_name left_out) }
{
    match built {
        Some(verb) => Known::Built(verb),
        None => match later {
            Some(_) => Known::Later,
            None => match left_out {
                Some(_) => Known::LeftOut,
                None => Known::Unknown,
            },
        },
    }
}

/// What a name stands for behind a pipe.
pub fn known_by(name: &str) -> Known
    ensures { result ≡ known name.now }
{
    known_of(verb_named(name), later_named(name), left_out_named(name))
}
