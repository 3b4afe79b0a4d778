//! The ten events as texts.

/// Their trace.
pub const TRACE: &str = "kind,unit,arg,local,ask,reply,addr,word,served,from,cause,first,squashed
assign,0,0,,,assigned,,0,,,,,
assign,1,12,,,assigned,,12,,,,,
submit,1,,1,1,loaded,0,0,memory,,,,
submit,0,,2,1,stored,0,5,,,violation,1,1
commit,0,,,,committed,,0,,,,,
assign,1,0,,,assigned,,12,,,,,
submit,1,,1,1,loaded,0,5,committed,0,,,
submit,1,,1,1,emitted,,5,,,,,
submit,1,,2,0,ran,,,,,,,
commit,1,,,,committed,,1,,,,,
";

/// The script of them.
pub const SCRIPT: &str = "kind,unit,arg
assign,0,0
assign,1,12
submit,1,63
submit,0,63
commit,0,
assign,1,0
submit,1,63
submit,1,63
submit,1,63
commit,1,
";

/// The summary that they lead to.
pub const SUMMARY: &str = "out,5
tasks,2
exit,5
kind-assign,3
kind-submit,5
kind-replace,0
kind-cancel,0
kind-commit,2
served-hit,0
served-reuse,0
served-version,0
served-spill,0
served-committed,1
served-memory,1
cut-violation,1
cut-guess,0
cut-cancel,0
";
