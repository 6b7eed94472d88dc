//! Accepted views.

ghost use Rattle.acceptance_laws.specs.ViewLaws.{AcceptedViews, WrittenViews, AcceptedViewsTold, WrittenViewsTold};

/// A view is accepted exactly where it is grounded and written with its name, its ends are accepted theories, and its map is
/// that of the link between them: its assignments have a reading, and the map meets its equations. It is all one whether this
/// is over what the module knows of others, or over all that the library's verdicts tell.
pub fn law_views()
    ensures faces { AcceptedViews }
    ensures written { WrittenViews }
    ensures told { AcceptedViewsTold }
    ensures written_told { WrittenViewsTold }
{}
