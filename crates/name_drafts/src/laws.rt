// What holds of a place for a name in each image that the view may be of: a law.
ghost use Rattle.name_drafts.specs.Laws.{PlacesCanGetNames};

/// A law: in an image that the view may be of and that stands for a tree the directory at a place for a name can get it, and the view shows it as
/// it is there. So what a draft that makes the name does whenever the directory can get it holds there.
pub fn places_can_get_names()
    ensures { PlacesCanGetNames }
{}
