// What holds of the state table as a whole.
ghost use Rattle.onu.specs.Facts.{TableKeeps, StopStands};

// Every event keeps an ONU sound, and one that was told to stop is let go in its two ways alone.
pub fn table_stands()
    ensures keeps { TableKeeps }
    ensures stop { StopStands }
{}
