//! Scripts with what they print: each begins with a line on what it shows, and an empty line stands behind it.
//!
//! `> LINE` is a line of the script, and `< LINE` one that is printed. `>> BODY` and `<< BODY` stand for the frame of a body that connection
//! 7 of daemon 0 gives or is told. `! TEXT` is what is said of the last line, where it is refused.

pub const SCRIPTS: &str = r#"# one editor, whose edit has come to the daemon
> daemon 0
> editor 0 0 f "abc"
> settle 0
> type 0 1 1 "X"
> settle 0
> show 0
> file 0 f
< show 0 quiet "aXc"
< file 0 f "aXc"

# and one whose edit has not
> daemon 0
> editor 0 0 f "abc"
> settle 0
> type 0 1 1 "X"
> show 0
> file 0 f
< show 0 busy "aXc"
< file 0 f "abc"

# an open under way
> daemon 0
> editor 0 0 f "ab"
> show 0
> file 0 f
< show 0 busy "ab"
< file 0 f absent

# an escape
> daemon 0
> editor 0 0 f "a\tb"
> show 0
< show 0 busy "a\tb"

# a path in quotes, and a text three times
> daemon 0
> editor 0 0 "a b" "\u{e4}"*3
> settle 0
> show 0
> file 0 "a b"
< show 0 quiet "äää"
< file 0 "a b" "äää"

# a connection that ends
> daemon 0
> editor 0 0 f "a"*3
> settle 0
> cut 0
> show 0
< show 0 lost "aaa"

# a text that is closed
> daemon 0
> editor 0 0 f "a"
> settle 0
> close 0
> settle 0
> show 0
< show 0 closed "a"

# an editor that opens a file which the daemon has gets the text that is there
> daemon 0
> editor 0 0 f "ab"
> editor 1 0 f "zz"
> settle 0
> settle 1
> show 1
< show 1 quiet "ab"

# also one that was lost and has typed since
> daemon 0
> editor 0 0 f "a"
> settle 0
> cut 0
> type 0 1 0 "b"
> show 0
> open 0
> settle 0
> show 0
> held 0
< show 0 lost "ab"
< show 0 quiet "a"
< held 0 1

# both insert at one gap, and the frame that comes down first was overtaken
> daemon 0
> editor 0 0 f "ab"
> editor 1 0 f "ab"
> settle 0
> settle 1
> type 0 1 0 "X"
> type 1 1 0 "Y"
> up 0
> down 1
> show 1
> up 1
> settle 0
> settle 1
> show 0
> show 1
< show 1 busy "aYb"
< show 0 quiet "aXYb"
< show 1 quiet "aXYb"

# both delete
> daemon 0
> editor 0 0 f "abc"
> editor 1 0 f "abc"
> settle 0
> settle 1
> type 0 1 1 ""
> type 1 1 2 ""
> up 0
> up 1
> settle 0
> settle 1
> show 0
> show 1
> held 0
< show 0 quiet "a"
< show 1 quiet "a"
< held 0 3

# an edit that changes nothing is a change too
> daemon 0
> editor 0 0 f "a"
> settle 0
> type 0 0 0 ""
> settle 0
> held 0
> show 0
< held 0 2
< show 0 quiet "a"

# a frame of the old link comes to an editor that has opened its text anew
> daemon 0
> editor 0 0 f "ab"
> editor 1 0 f "ab"
> settle 0
> settle 1
> type 1 1 0 "Y"
> up 1
> close 0
> open 0
> up 0
> up 0
> down 0
> show 0
> settle 0
> show 0
< show 0 busy "ab"
< show 0 quiet "aYb"

# daemons have files of their own
> daemon 0
> daemon 1
> editor 0 1 f "a"
> settle 0
> file 0 f
> file 1 f
> held 0
> held 1
< file 0 f absent
< file 1 f "a"
< held 0 0
< held 1 1

# a text of 1,048,576 characters is as long as may be
> daemon 0
> editor 0 0 f "a"*1048576
> settle 0
> type 0 0 0 "b"
> settle 0
> held 0
> open 0
> settle 0
> type 0 0 1 ""
> settle 0
> held 0
< refused 0 -32006
< held 0 1
< held 0 2

# what was printed before stays
> daemon 0
> held 0
> frobnicate 0
< held 0 0
! the line is no move of the script language

# outside the language
> daemon 00
! the line is no move of the script language

# outside the language
> up 01
! the line is no move of the script language

# outside the language
>  # no comment
! the line is no move of the script language

# outside the language
> editor 0 0 .git/x ""
! the line is no move of the script language

# not possible
> show 0
! the move is not possible here

# not possible
> type 0 0 0 ""
! the move is not possible here

# not possible
> up 0
! the move is not possible here

# not possible
> held 0
! the move is not possible here

# not possible
> daemon 1
! the move is not possible here

# not possible
> link 0 1
! the move is not possible here

# not possible
> daemon 0
> daemon 0
! the move is not possible here

# not possible
> daemon 0
> crash 0
! the move is not possible here

# not possible
> daemon 0
> editor 1 0 f ""
! the move is not possible here

# not possible
> daemon 0
> editor 0 1 f ""
! the move is not possible here

# not possible
> daemon 0
> editor 0 0 f "a"
> type 0 1 1 ""
! the move is not possible here

# not possible
> daemon 0
> editor 0 0 f "a"
> down 0
! the move is not possible here

# not possible
> daemon 0
> editor 0 0 f "a"
> open 0
! the move is not possible here

# not possible
> daemon 0
> editor 0 0 f "a"
> close 0
> close 0
! the move is not possible here

# not possible
> daemon 0
> editor 0 0 f "a"
> cut 0
> cut 0
! the move is not possible here

# not possible
> daemon 0
> editor 0 0 f "a"
> cut 0
> settle 0
! the move is not possible here

# not possible
> daemon 0
> begin 0 7 peer
! the move is not possible here

# not possible
> daemon 0
> begin 0 4294967296 editor
! the move is not possible here

# not possible
> daemon 0
> begin 0 7 editor
> begin 0 7 editor
! the move is not possible here

# not possible
> daemon 0
> hear 0 7 00
! the move is not possible here

# not possible
> daemon 0
> end 0 7
! the move is not possible here

# an edit of 184 bytes that was overtaken is sent again
> daemon 0
> editor 0 0 f "ab"
> settle 0
> begin 0 7 editor
>> {"jsonrpc":"2.0","id":1,"method":"open","params":{"uri":"file:///work/f","content":"ab"}}
<< {"id":1,"jsonrpc":"2.0","result":"success"}
> type 0 1 0 "X"
> up 0
<< {"jsonrpc":"2.0","method":"edit","params":{"delta":[{"range":{"end":{"character":1,"line":0},"start":{"character":1,"line":0}},"replacement":"X"}],"revision":0,"uri":"file:///work/f"}}
>> {"jsonrpc":"2.0","id":2,"method":"edit","params":{"uri":"file:///work/f","revision":0,"delta":[{"range":{"start":{"line":0,"character":1},"end":{"line":0,"character":1}},"replacement":"Y"}]}}
<< {"id":2,"jsonrpc":"2.0","result":"success"}
<< {"jsonrpc":"2.0","method":"edit","params":{"delta":[{"range":{"end":{"character":1,"line":0},"start":{"character":1,"line":0}},"replacement":"X"}],"revision":1,"uri":"file:///work/f"}}
> settle 0
> show 0
< show 0 quiet "aXYb"

# the session of a plugin: the header of its open has a Content-Type beside the length, 117
> daemon 0
> begin 0 7 editor
> hear 0 7 436f6e74656e742d4c656e6774683a203131370d0a436f6e74656e742d547970653a206170706c69636174696f6e2f7673636f64652d6a736f6e7270633b20636861727365743d7574662d380d0a0d0a7b226a736f6e727063223a22322e30222c226964223a312c226d6574686f64223a226f70656e222c22706172616d73223a7b22757269223a2266696c653a2f2f2f776f726b2f7372632f6d61696e2e7273222c22636f6e74656e74223a22666e206d61696e2829207b5c725c6e7d5c725c6e227d7d
<< {"id":1,"jsonrpc":"2.0","result":"success"}
>> {"jsonrpc":"2.0","id":2,"method":"edit","params":{"uri":"file:///work/src/main.rs","revision":0,"delta":[{"range":{"start":{"line":0,"character":11},"end":{"line":0,"character":11}},"replacement":"\r\n    let x = 1;"}]}}
<< {"id":2,"jsonrpc":"2.0","result":"success"}
>> {"jsonrpc":"2.0","id":3,"method":"edit","params":{"uri":"file:///work/src/main.rs","revision":0,"delta":[{"range":{"start":{"line":1,"character":12},"end":{"line":1,"character":13}},"replacement":"2"}]}}
<< {"id":3,"jsonrpc":"2.0","result":"success"}
>> {"jsonrpc":"2.0","id":4,"method":"edit","params":{"uri":"file:///work/src/main.rs","revision":0,"delta":[{"range":{"start":{"line":2,"character":1},"end":{"line":3,"character":0}},"replacement":""}]}}
<< {"id":4,"jsonrpc":"2.0","result":"success"}
>> {"jsonrpc":"2.0","id":5,"method":"close","params":{"uri":"file:///work/src/main.rs"}}
<< {"id":5,"jsonrpc":"2.0","result":"success"}
> file 0 src/main.rs
< file 0 src/main.rs "fn main() {\r\n    let x = 2;\r\n}"
> held 0
< held 0 4

# what is wrong is answered by its code
> daemon 0
> begin 0 7 editor
>> []
<< {"error":{"code":-32600,"message":"invalid request"},"id":null,"jsonrpc":"2.0"}
>> {"jsonrpc":"2.0","id":7,"method":"save"}
<< {"error":{"code":-32601,"message":"method not found"},"id":7,"jsonrpc":"2.0"}
>> {"jsonrpc":"2.0","id":8,"method":"close","params":{}}
<< {"error":{"code":-32602,"data":{"member":"uri"},"message":"invalid params"},"id":8,"jsonrpc":"2.0"}
>> {"jsonrpc":"2.0","id":9,"method":"close","params":{"uri":"http://x/f"}}
<< {"error":{"code":-32003,"data":{"cause":"NotFile"},"message":"bad uri"},"id":9,"jsonrpc":"2.0"}
>> {"jsonrpc":"2.0","id":1,"method":"open","params":{"uri":"file:///work/f","content":"ab"}}
<< {"id":1,"jsonrpc":"2.0","result":"success"}
>> {"jsonrpc":"2.0","id":1,"method":"open","params":{"uri":"file:///work/f","content":"ab"}}
<< {"error":{"code":-32002,"message":"file is already open"},"id":1,"jsonrpc":"2.0"}
>> {"jsonrpc":"2.0","id":2,"method":"edit","params":{"uri":"file:///work/f","revision":5,"delta":[]}}
<< {"error":{"code":-32005,"data":{"confirmed":0,"issued":0,"seen":5},"message":"bad revision"},"id":2,"jsonrpc":"2.0"}
>> {"jsonrpc":"2.0","id":3,"method":"edit","params":{"uri":"file:///work/f","revision":0,"delta":[]}}
<< {"error":{"code":-32001,"message":"file is not open"},"id":3,"jsonrpc":"2.0"}
> file 0 f
< file 0 f "ab"
> held 0
< held 0 1

# a shutdown stops the daemon, and its editors are lost
> daemon 0
> editor 0 0 f "a"
> settle 0
> begin 0 7 editor
>> {"jsonrpc":"2.0","id":1,"method":"shutdown"}
<< {"id":1,"jsonrpc":"2.0","result":"success"}
> show 0
< show 0 lost "a"

# a byte that no header has ends the connection, and nothing more is heard on it
> daemon 0
> begin 0 7 editor
> hear 0 7 436f6e74656e742d4c656e6774683a2078
> hear 0 7 00
< hung 0 7
! the move is not possible here"#;
