// What holds of windows, rounds and message turns.
ghost use Rattle.rules.specs.Facts.{WindowsStand, RoundsStand, MessagesStand};

// A window is the 73 slots up to the last one; each place has its own, 16 frames after the one before.
pub fn windows_stand()
    ensures { WindowsStand }
{}

// A place's rounds start 1,024 frames apart, and its window ends 1,016 frames after each start.
pub fn rounds_stand()
    ensures { RoundsStand }
{}

// In a round a place says each message of its job in three of its 32 turns, one message after the other.
pub fn messages_stand()
    ensures { MessagesStand }
{}
