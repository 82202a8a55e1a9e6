//! How the program is called.

/// The forms of the commands that are built, a line each, for who gave other words. `live` is not among them yet.
pub fn usage_text() -> &'static str {
    "keygen --key FILE --height 5|10 --width 1|2|4|8\n\
     roster --toml FILE --out FILE\n\
     show --roster FILE --round R --post FILE\n\
     judge --roster FILE --transcript FILE\n\
     group --script FILE --roster FILE --transcript FILE\n\
     make --number K --members N --bytes B --fault NAME\n\
     member --roster FILE --key FILE --round R --message FILE --transcript FILE --wait S ADDRESS..\n"
}
