// Theorems only: what a search answers, said of paths of pages (document 02, Ticket 1).
