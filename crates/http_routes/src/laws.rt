//! Laws of the routes.
ghost use Rattle.http_routes.specs.Pieces.{FoundByPieces};

/// The router finds for every path what the table has for the pieces that a plain cut at its slashes gives.
pub fn found_by_pieces()
    ensures { FoundByPieces }
{}
