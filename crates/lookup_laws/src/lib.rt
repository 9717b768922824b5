// What reading answers on the image of a list of entries: laws alone, no function. A crate of its own, since both
// `lists` and `serialize` cite them, and `serialize` does not stand on the writer.
#![tactic(auto)]
