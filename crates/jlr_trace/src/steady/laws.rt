//! Which readers do so. Each function's contract is the law, and its body is empty.
ghost use Rattle.std.specs.Int.{w64};
ghost use Rattle.jlr_trace_fields.specs.Reading.{number_at};
ghost use Rattle.jlr_trace_fields.specs.declared.version.Version.{Version as VersionOf};
ghost use Rattle.jlr_trace_entries.specs.Entries.{entry_read};
ghost use Rattle.jlr_trace_entries.specs.Images.{image_read};
ghost use Rattle.jlr_trace.specs.Steady.{IsSteady};

/// The reader of an entry.
pub fn entries_are_steady()
    ensures { (version : VersionOf) → IsSteady (entry_read version) }
{}

/// The reader of an image, and that of the count behind it.
pub fn heads_are_steady()
    ensures image { (version : VersionOf) → IsSteady (image_read version) }
    ensures count { IsSteady (number_at w64) }
{}
